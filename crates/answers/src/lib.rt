// What a call of the engine answers and leaves in the two lent buffers: one relation over the definitions of `cycles`,
// and the three demands proved about it. No code, and no algorithm in sight.

#![tactic(auto)]
