// A block of an old catalogue, which is cut anywhere, and what checking it answers (02, j): so many bytes of whole records, each of them good, behind which stands nothing or
// the beginning of one more; or the refusal of the first record that is not good, with its place in the block. The call is `converter_blocks`'s. No functions.

#![tactic(auto)]
