ghost use Rattle.std.specs.Prelude.{◌≡◌};
ghost use Rattle.thread_tree.specs.Pieces.{applied, itemized, named, slot_of, valued, whom};
ghost use Rattle.thread_tree.specs.declared.needed.Needed.{Needed};
ghost use Rattle.thread_tree.specs.declared.slot.Slot.TheVariants as slot;
ghost use Rattle.thread_text.specs.Operands.{piece_of};

use thread_tree::{At, Expr, Item, List, Needed, Who};

/// What was read for a place of a call: the piece that it fills the place with.
#[derive(Drop)]
pub enum Operand {
    Name(Needed, At),
    Value(Expr),
    Whom(Who),
    Items(List<Item>),
    Application(At, List<Expr>),
}

impl Operand {
    /// The name that it is.
    pub fn into_name(self) -> At
        requires is { (needed : Needed) × (slot_of (piece_of self) ≡ slot.Name needed) }
        ensures piece { (needed : Needed) → slot_of (piece_of self) ≡ slot.Name needed → piece_of self ≡ named needed result }
    {
        match self {
            Operand::Name(_, name) => name,
            Operand::Value(_) => unreachable!(),
            Operand::Whom(_) => unreachable!(),
            Operand::Items(_) => unreachable!(),
            Operand::Application(_, _) => unreachable!(),
        }
    }

    /// The value that it is.
    pub fn into_value(self) -> Expr
        requires is { slot_of (piece_of self) ≡ slot.Value }
        ensures piece { piece_of self ≡ valued result }
    {
        match self {
            Operand::Value(value) => value,
            Operand::Name(_, _) => unreachable!(),
            Operand::Whom(_) => unreachable!(),
            Operand::Items(_) => unreachable!(),
            Operand::Application(_, _) => unreachable!(),
        }
    }

    /// The thread that it is.
    pub fn into_whom(self) -> Who
        requires is { slot_of (piece_of self) ≡ slot.Whom }
        ensures piece { piece_of self ≡ whom result }
    {
        match self {
            Operand::Whom(whom) => whom,
            Operand::Name(_, _) => unreachable!(),
            Operand::Value(_) => unreachable!(),
            Operand::Items(_) => unreachable!(),
            Operand::Application(_, _) => unreachable!(),
        }
    }

    /// The items that it is.
    pub fn into_items(self) -> List<Item>
        requires is { slot_of (piece_of self) ≡ slot.Items }
        ensures piece { piece_of self ≡ itemized result }
    {
        match self {
            Operand::Items(items) => items,
            Operand::Name(_, _) => unreachable!(),
            Operand::Value(_) => unreachable!(),
            Operand::Whom(_) => unreachable!(),
            Operand::Application(_, _) => unreachable!(),
        }
    }

    /// The template and the arguments that it is.
    pub fn into_application(self) -> (At, List<Expr>)
        requires is { slot_of (piece_of self) ≡ slot.Application }
        ensures piece { piece_of self ≡ applied result.0 result.1 }
    {
        match self {
            Operand::Application(template, arguments) => (template, arguments),
            Operand::Name(_, _) => unreachable!(),
            Operand::Value(_) => unreachable!(),
            Operand::Whom(_) => unreachable!(),
            Operand::Items(_) => unreachable!(),
        }
    }
}
