// The rules of document 01, as document 02 has changed them so far, are definitions: specs/. Theorems about them: proofs/.
#![tactic(auto)]
