ghost use Rattle.rounds_apps.specs.Laws.{CommandsKeepRounds, InputsKeepRounds};

/// Each input of an application server and each command of a job keep what rounds put.
pub fn rounds_are_kept_by_application_servers()
    ensures inputs { InputsKeepRounds }
    ensures commands { CommandsKeepRounds }
{}
