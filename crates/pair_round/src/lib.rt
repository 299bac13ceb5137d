// A round of two, and the claim about it: every call accepts, and document 01's decoding gives the plain circuit's outputs; and what a row meter holds
// after any garblings, of either form. It has no code, and no crate below the claim names it. Rests on `pair` for what each call of the two-party form
// does and what opening comes to, on `calls` for decoding, on `round` for garblings of the n-party form and what both rounds share, on `meter`.

#![tactic(auto)]
