// Setting up a bucket's representative in a dictionary, and taking it away, over any lawful
// dictionary and for any kind of key.
//
// In both the table has the bucket in its order: it is opened before it is set up, and closed after
// it is taken away. The dictionary goes from the pairs of the order without it to those of the order
// with it, or back, level by level. A node's pair alters only where the bucket comes first or last
// under the node, so that there is one get for each level, and one put or drop more for each of
// those.
#![tactic(auto)]

pub mod set_up;
pub mod take_away;
