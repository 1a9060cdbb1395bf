//! Members of JSON objects, written one at a time, and what is written of lists: what an answer and a window are made of.
#![tactic(auto)]

mod members;

pub use members::{
    code_text, text_of, write_count, write_count_or_null, write_integer, write_integer_or_null,
    write_no_list, write_nothing, write_text, write_text_or_null, write_truth,
};
