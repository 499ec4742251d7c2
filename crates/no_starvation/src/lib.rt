// Others can't starve a block: the theorem over any chain of the assembler's calls. It has no code of its own: read specs/Starve.antt.

#![tactic(auto)]
