// What is claimed of places: where a refused command's fault points, and that the field really begins there.

#![tactic(auto)]
