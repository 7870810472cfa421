//! Laws of the definitions, each as what a function without a body ensures.

ghost use Rattle.gx_events.specs.{Laws.{EventsAreLines, LimitsAreInForce, LogsGoOn}, Sample.{CommandsAreTold, CommandsAreToldInJson, FullDaysAreTold, PeopleAreTold, PeopleAreToldInJson, ValuesAreTold, ValuesAreToldInJson}};

/// A log is told in pieces: the lines of more records stand behind those of the earlier ones.
pub fn logs_go_on()
    ensures { LogsGoOn }
{}

/// The limit that a Set Limit is told to have changed is the rule's limit in force before it.
pub fn limits_are_in_force()
    ensures { LimitsAreInForce }
{}

/// Each event is one line, whatever bytes its names have: no user can make up lines of the log by the names that he sends.
pub fn events_are_lines()
    ensures { EventsAreLines }
{}

/// The lines of a sample day, as text and as JSON.
pub fn a_sample_day_is_told()
    ensures people { PeopleAreTold }
    ensures people_in_json { PeopleAreToldInJson }
    ensures commands { CommandsAreTold }
    ensures commands_in_json { CommandsAreToldInJson }
    ensures values { ValuesAreTold }
    ensures values_in_json { ValuesAreToldInJson }
    ensures full_days { FullDaysAreTold }
{}
