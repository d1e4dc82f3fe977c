// What the definitions of an accepted image and of an image's first fault have to do with each other.

ghost use Rattle.tdb_space.specs.FirstFault.{AcceptedIsSound, OneFirstFault, NoneWhereAccepted, FaultWhereRefused};

/// An image has a first fault where it isn't accepted, and then only one. The law is over all lists of bytes; the
/// function does nothing.
pub fn first_fault_law()
    ensures sound { AcceptedIsSound }
    ensures one { OneFirstFault }
    ensures none { NoneWhereAccepted }
    ensures some { FaultWhereRefused }
{}
