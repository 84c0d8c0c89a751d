// What the plain caster means and why it keeps the laws of casters: definitions and proofs, no code.
#![tactic(auto)]
