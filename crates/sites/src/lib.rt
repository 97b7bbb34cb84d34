// Laws only: every step carries a station's site code unchanged, and the code plays no part in what steps do (document 02, T-05).
#![tactic(auto)]
