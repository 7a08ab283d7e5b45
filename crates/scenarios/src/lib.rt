// The machine held against an independent model: eight runs of nine hundred calls each, careless ones among them.
#![tactic(auto)]

ghost use Rattle.scenarios.specs.Lines.{Agrees};
ghost use Rattle.scenarios.specs.Scenario1.{scenario as scenario_1};
ghost use Rattle.scenarios.specs.Scenario2.{scenario as scenario_2};
ghost use Rattle.scenarios.specs.Scenario3.{scenario as scenario_3};
ghost use Rattle.scenarios.specs.Scenario4.{scenario as scenario_4};
ghost use Rattle.scenarios.specs.Scenario5.{scenario as scenario_5};
ghost use Rattle.scenarios.specs.Scenario6.{scenario as scenario_6};
ghost use Rattle.scenarios.specs.Scenario7.{scenario as scenario_7};
ghost use Rattle.scenarios.specs.Scenario8.{scenario as scenario_8};

// At each call of each run the machine prints the line that the model prints.
pub fn scenarios_agree()
    ensures first { Agrees scenario_1 }
    ensures second { Agrees scenario_2 }
    ensures third { Agrees scenario_3 }
    ensures fourth { Agrees scenario_4 }
    ensures fifth { Agrees scenario_5 }
    ensures sixth { Agrees scenario_6 }
    ensures seventh { Agrees scenario_7 }
    ensures eighth { Agrees scenario_8 }
{}
