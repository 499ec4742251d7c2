// The refusal table as theorems, over the promises of every public call. It has no code of its own: read specs/RefusalTable.antt.

#![tactic(auto)]
