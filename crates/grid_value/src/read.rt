// From bytes to a JSON value, in one pass over the tokens.
ghost use Rattle.std.specs.Prelude.{◌≡◌, ◌≢◌, ◌<◌, [], ◌∷◌, ◌++◌, ℕ, length, Some, None, Err, IfOk, OnOk, IfSome, OnSome};
ghost use Rattle.json.specs.Token.{begin_array, begin_object};
ghost use Rattle.json.specs.Json.{value, items, members};
ghost use Rattle.serde_json.specs.Data.{no_members};
ghost use Rattle.serde_json.specs.Read.{of_json, of_items, of_members, converted};
ghost use Rattle.grid_value.specs.Bytes.{reading};
ghost use Rattle.grid_value.specs.View.{view, data_of};
ghost use Rattle.grid_value.specs.Tree.{Grows, GrowsItems, GrowsMembers, tree_view};

use crate::node::Node;
use crate::number::Number;
use crate::value::Value;
use json::{Invalid, Reader, Scratch, Token};
use std::alloc::{AllocError, AllocFailed, Global};

/// How deep arrays and objects may nest, as in `serde_json`.
pub const MAX_DEPTH: usize = 127;

/// For how many nodes a tree of one value of a text has room from the start, as most of a job's small objects have.
const USUAL_NODES: usize = 16;

/// Why bytes are no JSON value.
#[derive(Clone, Copy, Debug, Drop, PartialEq, Eq)]
pub enum ByteFault {
    /// `serde_json` has no reading of the bytes.
    NotJson,
    /// Out of memory.
    Memory,
}

impl From<Invalid> for ByteFault {
    ghost use Rattle.std.specs.Prelude.{◌≡◌};
    ghost use Rattle.grid_value.specs.declared.read.ByteFault.TheVariants.{NotJson};

    ghost from_gives = { λ _ fault. fault ≡ NotJson };

    fn from(_invalid: Invalid) -> ByteFault {
        ByteFault::NotJson
    }
}

impl From<AllocError> for ByteFault {
    ghost use Rattle.std.specs.Prelude.{◌≡◌};
    ghost use Rattle.grid_value.specs.declared.read.ByteFault.TheVariants.{Memory};

    ghost from_gives = { λ _ fault. fault ≡ Memory };

    fn from(_refused: AllocError) -> ByteFault {
        ByteFault::Memory
    }
}

impl<T: Drop> From<AllocFailed<T>> for ByteFault {
    ghost use Rattle.std.specs.Prelude.{◌≡◌};
    ghost use Rattle.grid_value.specs.declared.read.ByteFault.TheVariants.{Memory};

    ghost from_gives = { λ _ fault. fault ≡ Memory };

    fn from(_refused: AllocFailed<T>) -> ByteFault {
        ByteFault::Memory
    }
}

/// A JSON value with all that it holds. It takes at most twelve bytes for each byte of the text.
#[derive(Debug, Drop)]
pub struct Tree<'t> {
    nodes: Vec<Node<'t>>,
}

impl<'t> Tree<'t> {
    /// The JSON value that the bytes spell, as `serde_json` reads them.
    pub fn from_slice(
        alloc: Global,
        bytes: &'t [u8],
        scratch: &'t mut Scratch,
    ) -> Result<Tree<'t>, ByteFault>
        ensures ok { IfOk result (λ tree. reading bytes.now ≡ Some (tree_view tree)) }
        ensures not_json { result ≡ Err ByteFault.NotJson → reading bytes.now ≡ None }
    {
        let Ok(text) = std::str::from_utf8(bytes) else {
            return Err(ByteFault::NotJson);
        };
        let mut reader = Reader::new(text, scratch)?;
        // Each value or name but the first stands behind a comma, a colon or a bracket.
        let mut nodes = Vec::with_capacity(alloc, bytes.len() / 2 + 1)?;
        read(&mut reader, &mut nodes, MAX_DEPTH)?;
        if reader.next().is_some() {
            return Err(ByteFault::NotJson);
        }
        Ok(Tree { nodes })
    }

    /// The next value of the reader. Arrays and objects may nest `depth` deep.
    pub fn next_of(
        alloc: Global,
        reader: &mut Reader<'t>,
        depth: usize,
    ) -> Result<Tree<'t>, ByteFault>
        ensures ok { IfOk result
            (λ tree. converted of_json (value depth reader.old) ≡ Some (tree_view tree, reader.new)) }
        ensures not_json { result ≡ Err ByteFault.NotJson
            → converted of_json (value depth reader.old) ≡ None }
        ensures shorter { OnOk result (length reader.new < length reader.old) }
    {
        let mut nodes = Vec::with_capacity(alloc, USUAL_NODES)?;
        read(reader, &mut nodes, depth)?;
        Ok(Tree { nodes })
    }

    /// The value itself.
    #[inline]
    pub fn root(&self) -> Value<'_, 't>
        ensures { view result ≡ tree_view self.now }
    {
        Value::of(self.nodes.as_slice())
    }
}

impl<'t> Value<'t, 't> {
    /// The next value of the reader, where it is neither an array nor an object, however deep those may nest; None
    /// exactly where there is no such value. It takes no memory.
    #[inline]
    pub fn next_leaf(reader: &mut Reader<'t>) -> Option<Value<'t, 't>>
        ensures leaf { IfSome result (λ v. (depth : ℕ) → converted of_json (value depth reader.old)
            ≡ Some (view v, reader.new)) }
        ensures other { result ≡ None → converted of_json (value 0 reader.old) ≡ None }
        ensures shorter { OnSome result (length reader.new < length reader.old) }
    {
        match reader.next()? {
            Token::String(text) => Some(leaf(Node::Text(text))),
            Token::Number(text) => Some(leaf(Node::Number(Number::parse(text)?))),
            Token::Bool(flag) => Some(leaf(Node::Bool(flag))),
            Token::Null => Some(leaf(Node::Null)),
            Token::BeginArray | Token::BeginObject => None,
            Token::EndObject | Token::EndArray | Token::Key(_) | Token::Bad => None,
        }
    }
}

/// The value that one node is.
#[inline]
fn leaf<'t>(head: Node<'t>) -> Value<'t, 't>
    ensures { view result ≡ data_of head.entry [] }
{
    Value { head, inside: &[] }
}

/// Appends a node.
#[inline(always)]
fn append<'t>(nodes: &mut Vec<Node<'t>>, node: Node<'t>) -> Result<(), ByteFault>
    ensures ok { OnOk result (nodes.new.items ≡ nodes.old.items ++ node.entry ∷ []) }
    ensures err { result ≢ Err ByteFault.NotJson }
{
    nodes.push(node)?;
    Ok(())
}

/// The node of the name whose value is so many nodes. It cannot tell of more than `u32` holds.
#[inline(always)]
fn name_node<'t>(name: &'t str, count: usize) -> Result<Node<'t>, ByteFault>
    ensures ok { IfOk result (λ node. node ≡ Node.Name count name.entry) }
    ensures err { result ≢ Err ByteFault.NotJson }
{
    match u32::try_from(count) {
        Ok(count) => Ok(Node::Name(count, name)),
        Err(_) => Err(ByteFault::Memory),
    }
}

/// Appends the next value of the reader. Arrays and objects may nest `depth` deep.
#[cycle(read)]
fn read<'t>(
    reader: &mut Reader<'t>,
    nodes: &mut Vec<Node<'t>>,
    depth: usize,
) -> Result<(), ByteFault>
    ensures ok { OnOk result (Grows nodes.old.items nodes.new.items
        (converted of_json (value depth reader.old)) reader.new) }
    ensures shorter { OnOk result (length reader.new < length reader.old) }
    ensures err { result ≡ Err ByteFault.NotJson
        → converted of_json (value depth reader.old) ≡ None }
{
    let token = reader.next().ok_or(ByteFault::NotJson)?;
    match token {
        Token::String(text) => append(nodes, Node::Text(text)),
        Token::Number(text) => match Number::parse(text) {
            Some(number) => append(nodes, Node::Number(number)),
            None => Err(ByteFault::NotJson),
        },
        Token::Bool(flag) => append(nodes, Node::Bool(flag)),
        Token::Null => append(nodes, Node::Null),
        Token::EndObject | Token::EndArray | Token::Key(_) | Token::Bad => Err(ByteFault::NotJson),
        Token::BeginArray => read_array(reader, nodes, depth),
        Token::BeginObject => read_object(reader, nodes, depth),
    }
}

/// Appends the array whose bracket was read. Arrays and objects may nest `depth` deep, this one with them.
#[cycle(read)]
fn read_array<'t>(
    reader: &mut Reader<'t>,
    nodes: &mut Vec<Node<'t>>,
    depth: usize,
) -> Result<(), ByteFault>
    ensures ok { OnOk result (Grows nodes.old.items nodes.new.items
        (converted of_json (value depth (begin_array ∷ reader.old))) reader.new) }
    ensures shorter { OnOk result (length reader.new < length reader.old) }
    ensures err { result ≡ Err ByteFault.NotJson
        → converted of_json (value depth (begin_array ∷ reader.old)) ≡ None }
{
    if depth == 0 {
        return Err(ByteFault::NotJson);
    }
    let place = nodes.len();
    append(nodes, Node::Array(0))?;
    read_items(reader, nodes, depth - 1)?;
    nodes[place] = Node::Array(nodes.len() - place - 1);
    Ok(())
}

/// Appends the object whose brace was read. Arrays and objects may nest `depth` deep, this one with them.
#[cycle(read)]
fn read_object<'t>(
    reader: &mut Reader<'t>,
    nodes: &mut Vec<Node<'t>>,
    depth: usize,
) -> Result<(), ByteFault>
    ensures ok { OnOk result (Grows nodes.old.items nodes.new.items
        (converted of_json (value depth (begin_object ∷ reader.old))) reader.new) }
    ensures shorter { OnOk result (length reader.new < length reader.old) }
    ensures err { result ≡ Err ByteFault.NotJson
        → converted of_json (value depth (begin_object ∷ reader.old)) ≡ None }
{
    if depth == 0 {
        return Err(ByteFault::NotJson);
    }
    let place = nodes.len();
    append(nodes, Node::Object(0))?;
    read_members(reader, nodes, depth - 1)?;
    nodes[place] = Node::Object(nodes.len() - place - 1);
    Ok(())
}

/// Appends the items up to the end of the array.
#[cycle(read)]
fn read_items<'t>(
    reader: &mut Reader<'t>,
    nodes: &mut Vec<Node<'t>>,
    depth: usize,
) -> Result<(), ByteFault>
    ensures ok { OnOk result (GrowsItems nodes.old.items nodes.new.items
        (converted of_items (items (value depth) (length reader.old) reader.old)) reader.new) }
    ensures shorter { OnOk result (length reader.new < length reader.old) }
    ensures err { result ≡ Err ByteFault.NotJson
        → converted of_items (items (value depth) (length reader.old) reader.old) ≡ None }
{
    'items: while !reader.take_end_array() {
        read(reader, nodes, depth)?;
    }
    Ok(())
}

/// Appends the members up to the end of the object.
#[cycle(read)]
fn read_members<'t>(
    reader: &mut Reader<'t>,
    nodes: &mut Vec<Node<'t>>,
    depth: usize,
) -> Result<(), ByteFault>
    ensures ok { OnOk result (GrowsMembers nodes.old.items nodes.new.items
        (converted (λ ms. of_members ms no_members)
        (members (value depth) (length reader.old) reader.old)) reader.new) }
    ensures shorter { OnOk result (length reader.new < length reader.old) }
    ensures err { result ≡ Err ByteFault.NotJson
        → converted (λ ms. of_members ms no_members)
        (members (value depth) (length reader.old) reader.old) ≡ None }
{
    'members: while let Some(name) = reader.next_key()? {
        let place = nodes.len();
        read(reader, nodes, depth)?;
        append(nodes, name_node(name, nodes.len() - place)?)?;
    }
    Ok(())
}
