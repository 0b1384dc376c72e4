// An index's buckets by their numbers, and the row of buckets that the rules speak of: definitions and lemmas only.
#![tactic(auto)]
