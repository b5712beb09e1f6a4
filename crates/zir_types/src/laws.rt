// Laws over the definitions alone.

ghost use Rattle.zir_types.specs.Typing.{ExpressionsAreSound};

/// What the walk of expressions accepts has its type by the rules without an order.
pub fn expressions_are_sound()
    ensures { ExpressionsAreSound }
{}
