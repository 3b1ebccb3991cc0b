// What crosses to C beside the endpoint: an answer is document 01's number, and its values in nine words, how many there are, then the values, then
// zeros; a request is eight words, of which those that are read fit their fields.
#![tactic(auto)]

pub mod answer;
pub mod request;
