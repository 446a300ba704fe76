// An order that was taken, as a token beside the node: plain numbers, not to be copied, and not to be let go. Its `drop`
// asks what no other crate can show, and what is true of no order that a node gave. So whoever has one carries or declines
// it, once.
ghost use Rattle.std.specs.Prelude.{◌≡◌};
ghost use Rattle.node.specs.Orders.{Lapses};

use crate::desk::Fields;

pub struct Order {
    pub(crate) fields: Fields,
}

impl Drop for Order {
    fn drop(self)
        requires { Lapses self.fields }
    {
        let Order { fields: _ } = self;
    }
}

impl Order {
    // The numbers of the order.
    pub fn fields(&self) -> Fields
        ensures { result ≡ self.now.fields }
    {
        self.fields
    }

    // The numbers of an order that is spent.
    pub(crate) fn into_fields(self) -> Fields
        ensures { result ≡ self.fields }
    {
        let Order { fields } = self;
        fields
    }
}
