// What circuits compute on whole numbers: a part that `bundles` writes, in any circuit that has its words, makes a bundle that carries the result; every party
// that is promised figures reads the integer from them, modulo the product; and a part behind the gates of an accepted circuit is accepted. Definitions
// and theorems only: an edit of them proves no code again. Rests on `bundles` for the parts, on `circuit`, `plain` and laws of `editor` for what a file means,
// and on `round` for what is promised.

#![tactic(auto)]
