// The editor's promise, as theorems over the definitions: what the writer writes the reader takes back to the same list, an accepted file comes out of
// the writer as the same words, and a refused item whose fields fit is refused as a word; and the round trip over the two calls. No code; rests on `writer` and `circuit`.

#![tactic(auto)]
