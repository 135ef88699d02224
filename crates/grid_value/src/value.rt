// What a JSON value holds.
ghost use Rattle.std.specs.Prelude.{◌≡◌, ◌<◌, ℕ, [], ◌∷◌, ◌++◌, length, is_some, option_map, option_and_then, nat_lt, MatchOption};
ghost use Rattle.serde_json.specs.Data.{no_items, item, no_members};
ghost use Rattle.serde_json.specs.Find.{get, get_member, as_bool, as_number, as_str, as_array, as_object, as_i64};
ghost use Rattle.grid_value.specs.View.{view, data_at, items_view, listed, members_view, items_of, listed_of, items_len, First};

use crate::node::Node;
use crate::number::Number;
use crate::text::same_text;

/// A JSON value. Its texts and its members' names are lent by the text that it was read from, or by the scratch where
/// they were written with escapes. It is seen as the data that `serde_json` reads of the same text: of members of one
/// name the last counts.
#[derive(Clone, Copy, Debug, Drop)]
pub struct Value<'v, 't> {
    pub(crate) head: Node<'t>,
    pub(crate) inside: &'v [Node<'t>],
}

/// The items of an array that are still to come.
#[derive(Clone, Copy, Debug, Drop)]
pub struct Items<'v, 't> {
    nodes: &'v [Node<'t>],
}

/// The members of an object that are still to come, as they are written, names that come twice among them.
#[derive(Clone, Copy, Debug, Drop)]
pub struct Members<'v, 't> {
    nodes: &'v [Node<'t>],
}

/// The value at the front of the nodes, and the nodes behind it.
#[inline(always)]
pub(crate) fn first_of<'v, 't>(nodes: &'v [Node<'t>]) -> Option<(Value<'v, 't>, &'v [Node<'t>])>
    ensures { MatchOption result (nodes.now ≡ []) (λ found. First nodes.now found.0 found.1.now) }
{
    let (head, behind) = nodes.split_first()?;
    let (inside, rest) = behind.split_at(head.inside().min(behind.len()));
    Some((
        Value {
            head: *head,
            inside,
        },
        rest,
    ))
}

impl<'v, 't> Value<'v, 't> {
    /// The value that these nodes are.
    #[inline(always)]
    pub(crate) fn of(nodes: &'v [Node<'t>]) -> Value<'v, 't>
        ensures { view result ≡ data_at nodes.now }
    {
        match nodes.split_first() {
            Some((head, inside)) => Value {
                head: *head,
                inside,
            },
            None => Value {
                head: Node::Null,
                inside: nodes,
            },
        }
    }

    #[inline]
    pub fn as_bool(&self) -> Option<bool>
        ensures { result ≡ as_bool (view self.now) }
    {
        if let Node::Bool(flag) = self.head {
            Some(flag)
        } else {
            None
        }
    }

    #[inline]
    pub fn is_number(&self) -> bool
        ensures { result ≡ is_some (as_number (view self.now)) }
    {
        matches!(self.head, Node::Number(_))
    }

    /// The number, where it is whole and fits 64 bits with a sign.
    #[inline]
    pub fn as_i64(&self) -> Option<i64>
        ensures { result ≡ option_and_then as_i64 (as_number (view self.now)) }
    {
        if let Node::Number(number) = self.head {
            number.as_i64()
        } else {
            None
        }
    }

    #[inline]
    pub fn as_str(&self) -> Option<&'t str>
        ensures { option_map (λ text. text.now) result ≡ as_str (view self.now) }
    {
        if let Node::Text(text) = self.head {
            Some(text)
        } else {
            None
        }
    }

    pub fn as_array(&self) -> Option<Items<'v, 't>>
        ensures { option_map items_view result ≡ as_array (view self.now) }
    {
        if let Node::Array(_) = self.head {
            Some(Items { nodes: self.inside })
        } else {
            None
        }
    }

    pub fn is_object(&self) -> bool
        ensures { result ≡ is_some (as_object (view self.now)) }
    {
        matches!(self.head, Node::Object(_))
    }

    pub fn as_object(&self) -> Option<Members<'v, 't>>
        ensures { option_map members_view result ≡ as_object (view self.now) }
    {
        if let Node::Object(_) = self.head {
            Some(Members { nodes: self.inside })
        } else {
            None
        }
    }

    /// The last member of that name, where this is an object.
    pub fn get(&self, name: &str) -> Option<Value<'v, 't>>
        ensures { option_map view result ≡ get name.now (view self.now) }
    {
        self.as_object()?.last_of(name)
    }
}

impl<'v, 't> Items<'v, 't> {
    /// The next item.
    #[inline(always)]
    pub fn next(&mut self) -> Option<Value<'v, 't>>
        ensures { MatchOption result (items_view self.old ≡ no_items)
            (λ v. items_view self.old ≡ item (view v) (items_view self.new)) }
    {
        match first_of(self.nodes) {
            None => None,
            Some((value, rest)) => {
                *self = Items { nodes: rest };
                Some(value)
            }
        }
    }

    /// Whether more than so many items are still to come. It passes over no more of them.
    pub fn are_above(&self, most: usize) -> bool
        ensures { result ≡ nat_lt most (items_len (items_view self.now)) }
    {
        let mut items = *self;
        let mut left = most;
        while left > 0 {
            if items.next().is_none() {
                return false;
            }
            left -= 1;
        }
        items.next().is_some()
    }
}

impl<'v, 't> Members<'v, 't> {
    /// The last of the members that are still to come.
    #[inline(always)]
    pub fn next_back(&mut self) -> Option<(&'t str, Value<'v, 't>)>
        ensures { MatchOption result (listed self.old ≡ [])
            (λ m. listed self.old ≡ listed self.new ++ (m.0.now, view m.1) ∷ []) }
    {
        let (name, nodes) = self.pass_back()?;
        Some((name, Value::of(nodes)))
    }

    /// Passes over the last of the members that are still to come, and gives its name and the nodes of its value.
    #[inline(always)]
    fn pass_back(&mut self) -> Option<(&'t str, &'v [Node<'t>])>
        ensures { MatchOption result (listed self.old ≡ [])
            (λ m. listed self.old ≡ listed self.new ++ (m.0.now, data_at m.1.now) ∷ []) }
    {
        let (last, others) = self.nodes.split_last()?;
        let (rest, inside) = others.split_at(others.len() - last.before().min(others.len()));
        *self = Members { nodes: rest };
        Some((last.name(), inside))
    }

    /// The last of the members that have that name.
    fn last_of(&self, name: &str) -> Option<Value<'v, 't>>
        ensures { option_map view result ≡ get_member name.now (members_view self.now) }
    {
        let mut members = *self;
        while let Some((known, nodes)) = members.pass_back() {
            if same_text(known, name) {
                return Some(Value::of(nodes));
            }
        }
        None
    }
}
