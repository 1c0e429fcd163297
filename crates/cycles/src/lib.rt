// Rings, relevance, families, bases and classes: the definitions of the subject and their mathematics. No code.
//
// `specs/` holds what a reader must believe, in the order of the scope document and under its words. `proofs/` shows
// that every relevant ring is in exactly one kept family, that the marked prototypes are a minimum basis, and that any
// minimum basis holds from each class exactly its relative rank.

#![tactic(auto)]
