// A connector once a connection is closed: its transmission runs on with no owner.
ghost use Rattle.std.specs.Prelude.{◌≡◌};
ghost use Rattle.connector.specs.Change.{owner_left, disowned};

use crate::{Connector, Owner};

// Who owns a transmission once a connection is closed: nobody, if that was the owner.
fn owner_left(owner: Owner, connection: u8) -> Owner
    ensures { result ≡ owner_left owner connection }
{
    if crate::records::owns(owner, connection) {
        Owner::Nobody
    } else {
        owner
    }
}

// One mark is changed, and nothing else.
pub fn disown(c: &mut Connector, connection: u8)
    ensures { c.new ≡ disowned c.old connection }
{
    c.owner = owner_left(c.owner, connection);
}

// The same for a record by value, which is lent to it and comes back.
pub fn disowned(c: Connector, connection: u8) -> Connector
    ensures { result ≡ disowned c connection }
{
    let mut next = c;
    disown(&mut next, connection);
    next
}
