// Laws only: lines in line and lines that are not, each for its cause; what every step and run keeps of a line in line, and of a station that may leave (document 02, T-04 and T-07).
#![tactic(auto)]
