// The nodes that a tree of JSON is made of.
ghost use Rattle.std.specs.Prelude.{◌≡◌};
ghost use Rattle.grid_value.specs.View.{inside, name_of, before};

use crate::number::Number;

/// A part of a JSON value: a value, or the name of the member whose value stands before it. The items of an array and
/// the members of an object stand behind it, in the order of the text, and it says how many nodes they are. A name says
/// how many nodes its value is, so that members can be gone through from the last.
#[derive(Clone, Copy, Debug, Drop)]
pub enum Node<'t> {
    Null,
    Bool(bool),
    Number(Number),
    Text(&'t str),
    Array(usize),
    Object(usize),
    Name(u32, &'t str),
}

impl<'t> Node<'t> {
    /// How many nodes behind this one belong to it.
    #[inline(always)]
    pub(crate) fn inside(&self) -> usize
        ensures { result ≡ inside self.now }
    {
        match self {
            Node::Array(inside) | Node::Object(inside) => *inside,
            _ => 0,
        }
    }

    /// The name that this node is.
    #[inline(always)]
    pub(crate) fn name(&self) -> &'t str
        ensures { result.now ≡ name_of self.now }
    {
        match self {
            Node::Name(_, name) => *name,
            _ => "",
        }
    }
    /// How many nodes before this name are its value.
    #[inline(always)]
    pub(crate) fn before(&self) -> usize
        ensures { result ≡ before self.now }
    {
        match self {
            Node::Name(count, _) => *count as usize,
            _ => 0,
        }
    }
}
