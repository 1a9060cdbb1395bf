// A value of a text, as a place in the flat list of its nodes.
ghost use Rattle.std.specs.Prelude.{◌≡◌, ◌+◌, ◌<◌, ◌∷◌, ◌++◌, List, IfNone, IfSome, MatchOption, drop, is_some, length, map, option_and_then, option_map};
ghost use Rattle.json.specs.Json.{Json};
ghost use Rattle.json.specs.Tape.{node_token, Linked};
ghost use Rattle.json.specs.Token.{Token};
ghost use Rattle.json.specs.Tree.{json_tokens};
ghost use Rattle.serde_json.specs.Data.{Data, Members, item, no_items, no_members};
ghost use Rattle.serde_json.specs.Find.{as_array, as_bool, as_null, as_number, as_object, as_str, as_u64, get, get_member};
ghost use Rattle.json_tree.specs.Trees.{BeginsMembers, HasData, HasMembers, Tells, seen, view};

use crate::number::whole_of;
use json::Node;
use std::marker::Model;

/// A value of a text. Of several members of one name the last counts.
#[derive(Drop)]
pub struct Tree<'t, 'a> {
    nodes: &'t [Node<'a>],
    at: usize,
}

impl<'t, 'a> Model for Tree<'t, 'a> {
    ghost use Rattle.std.specs.Prelude.{List, map, drop};
    ghost use Rattle.json.specs.Token.{Token, tokens_code};

    ghost Value = { List Token };

    ghost coded = { tokens_code };

    ghost use Rattle.json.specs.Tape.{node_token, Linked};
    ghost use Rattle.json_tree.specs.Trees.{HasData};

    ghost view = { λ a. drop a.at (map node_token a.nodes.now) };

    ghost invariant = { λ a. Linked (map node_token a.nodes.now) 0 a.nodes.now
        × HasData (drop a.at (map node_token a.nodes.now)) };
}

/// The items of a list that are left.
#[derive(Drop)]
pub struct Items<'t, 'a> {
    nodes: &'t [Node<'a>],
    at: usize,
}

impl<'t, 'a> Model for Items<'t, 'a> {
    ghost use Rattle.std.specs.Prelude.{List, map, drop};
    ghost use Rattle.json.specs.Token.{Token, tokens_code};

    ghost Value = { List Token };

    ghost coded = { tokens_code };

    ghost use Rattle.json.specs.Tape.{node_token, Linked};
    ghost use Rattle.json_tree.specs.Trees.{HasItems};

    ghost view = { λ a. drop a.at (map node_token a.nodes.now) };

    ghost invariant = { λ a. Linked (map node_token a.nodes.now) 0 a.nodes.now
        × HasItems (drop a.at (map node_token a.nodes.now)) };
}

impl<'t, 'a> Items<'t, 'a> {
    /// The next item, or none at the end.
    #[inline(always)]
    pub fn next(&mut self) -> Option<Tree<'t, 'a>>
        ensures next { MatchOption result (seen self.old ≡ no_items)
            (λ t. seen self.old ≡ item (view t) (seen self.new)) }
        ensures fewer { IfSome result (λ _. length self.new < length self.old) }
        ensures stays { IfNone result (self.new ≡ self.old) }
    {
        let (nodes, at) = (self.nodes, self.at);
        if let Node::EndArray = node_at(nodes, at) {
            return None;
        }
        self.at = after(nodes, at);
        Some(Tree { nodes, at })
    }

    /// The next item, or none at the end: the number that it is, or none where it is no whole number from 0.
    #[inline(always)]
    pub fn next_number(&mut self) -> Option<Option<u64>>
        ensures next { MatchOption result (seen self.old ≡ no_items)
            (λ n. (d : Data) × (seen self.old ≡ item d (seen self.new))
            × (n ≡ option_and_then as_u64 (as_number d))) }
        ensures fewer { IfSome result (λ _. length self.new < length self.old) }
        ensures stays { IfNone result (self.new ≡ self.old) }
    {
        // A number is one node, and most lists of numbers are nothing else.
        let (nodes, at) = (self.nodes, self.at);
        if let Node::Number(text) = node_at(nodes, at) {
            self.at = at + 1;
            return Some(whole_of(text));
        }
        let item = self.next()?;
        Some(item.as_u64())
    }
}

impl<'t, 'a> Tree<'t, 'a> {
    // The value at the first node.
    pub(crate) fn first(nodes: &'t [Node<'a>]) -> Tree<'t, 'a>
        requires links { Linked (map node_token nodes.now) 0 nodes.now }
        requires begins { HasData (map node_token nodes.now) }
        ensures { result ≡ map node_token nodes.now }
    {
        Tree { nodes, at: 0 }
    }

    // The node that it begins with.
    #[inline(always)]
    fn node(&self) -> Node<'a>
        ensures { Tells (node_token result) (view self.now) }
    {
        node_at(self.nodes, self.at)
    }

    /// The last member of that name; none where this is no object.
    pub fn get(&self, name: &str) -> Option<Tree<'t, 'a>>
        ensures { option_map view result ≡ get name.now (view self.now) }
    {
        let (nodes, at) = (self.nodes, self.at);
        if let Node::Object(_) = node_at(nodes, at) {
            match find(nodes, at + 1, name) {
                Some(at) => Some(Tree { nodes, at }),
                None => None,
            }
        } else {
            None
        }
    }

    pub fn is_object(&self) -> bool
        ensures { result ≡ is_some (as_object (view self.now)) }
    {
        matches!(self.node(), Node::Object(_))
    }

    pub fn is_null(&self) -> bool
        ensures { result ≡ is_some (as_null (view self.now)) }
    {
        matches!(self.node(), Node::Null)
    }

    pub fn as_bool(&self) -> Option<bool>
        ensures { result ≡ as_bool (view self.now) }
    {
        if let Node::Bool(b) = self.node() {
            Some(b)
        } else {
            None
        }
    }

    /// A whole number from 0 that is written without a point or an exponent.
    #[inline(always)]
    pub fn as_u64(&self) -> Option<u64>
        ensures { result ≡ option_and_then as_u64 (as_number (view self.now)) }
    {
        if let Node::Number(text) = self.node() {
            whole_of(text)
        } else {
            None
        }
    }

    pub fn as_str(&self) -> Option<&'a str>
        ensures { option_map (λ s. s.now) result ≡ as_str (view self.now) }
    {
        if let Node::String(text) = self.node() {
            Some(text)
        } else {
            None
        }
    }

    /// The items of a list.
    pub fn as_array(&self) -> Option<Items<'t, 'a>>
        ensures { option_map seen result ≡ as_array (view self.now) }
    {
        let (nodes, at) = (self.nodes, self.at);
        if let Node::Array(_) = node_at(nodes, at) {
            Some(Items { nodes, at: at + 1 })
        } else {
            None
        }
    }
}

// The node at a place.
#[inline(always)]
fn node_at<'a>(nodes: &[Node<'a>], at: usize) -> Node<'a>
    requires { at < length nodes.now }
    ensures { drop at (map node_token nodes.now)
        ≡ node_token result ∷ drop (at + 1) (map node_token nodes.now) }
{
    nodes[at]
}

// The place after the value that begins at i.
#[inline(always)]
fn after(nodes: &[Node<'_>], i: usize) -> usize
    requires within { i < length nodes.now }
    requires links { Linked (map node_token nodes.now) 0 nodes.now }
    ensures value { (j : Json) (rest : List Token)
        → drop i (map node_token nodes.now) ≡ json_tokens j ++ rest
        → drop result (map node_token nodes.now) ≡ rest }
    ensures later { i < result }
{
    match nodes[i] {
        Node::Object(end) | Node::Array(end) => end,
        _ => i + 1,
    }
}

// The place of the last member of that name, of those that begin at the first place.
fn find(nodes: &[Node<'_>], first: usize, name: &str) -> Option<usize>
    requires links { Linked (map node_token nodes.now) 0 nodes.now }
    requires begins { HasMembers (drop first (map node_token nodes.now)) }
    ensures { (ms : Members) (rest : List Token)
        → BeginsMembers (drop first (map node_token nodes.now)) no_members ms rest
        → MatchOption result (get_member name.now ms ≡ None)
        (λ i. HasData (drop i (map node_token nodes.now))
        × (get_member name.now ms ≡ Some (view (drop i (map node_token nodes.now))))) }
{
    let mut at = first;
    let mut found = None;
    'members: while let Node::Key(key) = node_at(nodes, at) {
        let member = at + 1;
        at = after(nodes, member);
        if key == name {
            found = Some(member);
        }
    }
    found
}
