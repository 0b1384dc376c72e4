// Runs of index calls, and the law over them: definitions and lemmas only.
#![tactic(auto)]
