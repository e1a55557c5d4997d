//! The work of the program `rasn-vectors`.
#![tactic(auto)]

mod answer;
mod arguments;
mod call;
mod lawful;
mod line;
mod names;
mod normal_answer;
mod program;
mod typed_answer;

pub use answer::Answer;
pub use arguments::{Usage, file_of};
pub use call::{CallFault, answer_call};
pub use lawful::lawful_in_lines;
pub use line::{Request, ValueType};
pub use normal_answer::NormalAnswer;
pub use program::{Answers, LineAnswer, RunFault, WorkedTypes, run, run_by, run_normalise};
pub use rasn::{NormaliseError, normalise};
pub use rasn_examples::{
    AlgorithmIdentifier, AttributeTypeAndValue, Both, Colour, Event, Group, Grouped, NamedFlag,
    Pair, Reason, RelativeDistinguishedName, Set3, Setting, Seven, Time, Validity, lawful_both,
    lawful_types, worked_normals,
};
