// A round of calls, and the claim about it: every call accepts, and every party decodes the plain circuit's outputs; that a bit times itself is
// opened as the bit; and what a row meter holds after any calls of garbling. It has no code, and no crate below the claim names it. Rests on `calls`
// for what each call does, on `scheme` for what garbling and opening come to, on `meter`.

#![tactic(auto)]
