// Laws only: what a station does with an introduction in the order of the proof of lemma 3 of source 000 (document 02, T-06).
#![tactic(auto)]
