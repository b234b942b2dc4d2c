//! Laws on the lines of a conversation. The functions do nothing when they run: their contracts are the laws.
ghost use Rattle.script_reader.specs.Laws.{EachLineMayBeCut, OrdersOfMoreLines};

/// Of a line with over 4,096 bytes any front of more than 4,096 serves.
pub fn lines_may_be_cut()
    ensures { EachLineMayBeCut }
{}

/// More lines ask for what the first of them ask for, and then for what the others do behind these.
pub fn orders_add_up()
    ensures { OrdersOfMoreLines }
{}
