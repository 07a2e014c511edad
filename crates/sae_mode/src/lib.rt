// No code: Farfalle-SAE, the mode of the first version's letters (document 02, request 9). The definitions are in specs/, the theorems in proofs/.
#![tactic(auto)]
