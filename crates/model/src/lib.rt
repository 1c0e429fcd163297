// The engine's plan: executable definitions of what each loop of the engine computes, and the theorem that what they
// compute is what the definitions of `cycles` ask for. No code.

#![tactic(auto)]
