// Numbers made of parts, the first one highest: definitions and lemmas only.
#![tactic(auto)]
