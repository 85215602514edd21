// That the contract of every public function admits one answer.

#![tactic(auto)]
