// From a text to its nodes, and one walk over them for what `serde_json` refuses and the tape does not.
ghost use Rattle.std.specs.Prelude.{◌≡◌, Err, IfOk, map, None, Some};
ghost use Rattle.json.specs.Json.{Json};
ghost use Rattle.json.specs.Tape.{node_token};
ghost use Rattle.json.specs.Tree.{json_tokens};
ghost use Rattle.serde_json.specs.Read.{read as read_text};
ghost use Rattle.json_tree.specs.Trees.{is_readable, view};

use crate::number::fits;
use crate::tree::Tree;
use json::{Error, Node, Scratch, Tape};
use std::alloc::Global;
use std::marker::Model;

const MAX_DEPTH: usize = 127;

/// Why a text has no tree.
#[derive(Clone, Copy, Debug, PartialEq, Eq)]
pub enum ParseFault {
    /// The text is no JSON, has a number too large for a float, or nests lists and objects deeper than 127.
    Invalid,
    /// Memory ran out, or the text is longer than 4 GiB less 256 bytes.
    Memory,
}

/// A text that was read, and the owner of its nodes.
#[derive(Drop)]
pub struct Parsed<'a> {
    tape: Tape<'a>,
}

impl<'a> Model for Parsed<'a> {
    ghost use Rattle.std.specs.Prelude.{List};
    ghost use Rattle.json.specs.Token.{Token, tokens_code};

    ghost Value = { List Token };

    ghost coded = { tokens_code };

    ghost use Rattle.json_tree.specs.Trees.{HasData};

    ghost view = { λ a. a.tape };

    ghost invariant = { λ a. HasData a.tape };
}

impl<'a> Parsed<'a> {
    /// The value that the text is.
    pub fn root(&self) -> Tree<'_, 'a>
        ensures { view result ≡ view self.now }
    {
        Tree::first(self.tape.nodes())
    }
}

/// Reads a text. That takes memory in proportion to the text, for one list of nodes, and the scratch is kept from text
/// to text.
pub fn parse<'a>(
    alloc: Global,
    text: &'a str,
    scratch: &'a mut Scratch,
) -> Result<Parsed<'a>, ParseFault>
    ensures ok { IfOk result (λ t. read_text text.now ≡ Some (view t)) }
    ensures invalid { result ≡ Err ParseFault.Invalid → read_text text.now ≡ None }
{
    match Tape::parse(text, scratch, Vec::new(alloc)) {
        Ok(tape) => {
            if is_readable(tape.nodes()) {
                Ok(Parsed { tape })
            } else {
                Err(ParseFault::Invalid)
            }
        }
        Err(Error::Invalid) => Err(ParseFault::Invalid),
        Err(Error::OutOfMemory | Error::TooLong | Error::DuplicateKey) => Err(ParseFault::Memory),
    }
}

// No number is too large for a float, and no more lists and objects are open at once than may be.
fn is_readable(nodes: &[Node<'_>]) -> bool
    ensures { (j : Json) → map node_token nodes.now ≡ json_tokens j → result ≡ is_readable j }
{
    let mut open: usize = 0;
    for node in nodes {
        match node {
            Node::Object(_) | Node::Array(_) => {
                if open == MAX_DEPTH {
                    return false;
                }
                open += 1;
            }
            Node::EndObject | Node::EndArray => open = open.saturating_sub(1),
            Node::Number(text) => {
                if !fits(text) {
                    return false;
                }
            }
            Node::Key(_) | Node::String(_) | Node::Bool(_) | Node::Null => {}
        }
    }
    true
}
