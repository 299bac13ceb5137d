// Document 01's examples that are marked to be proved, and a garbled row with its real pads: both computed by the checker from the definitions.
// It has no code. Rests on `calls` for decoding, on `round` for a circuit as the words of a file, on `scheme`, `pads` and the definitions below them.

#![tactic(auto)]
