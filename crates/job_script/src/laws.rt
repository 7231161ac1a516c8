ghost use Rattle.std.specs.Prelude.{◌≡◌, ◌⊎◌, ℕ, List};
ghost use Rattle.subscript_keys.specs.Key.{AreBytes};
ghost use Rattle.job_script.specs.declared.script.Script.{Script};
ghost use Rattle.job_script.specs.declared.script_error.ScriptError.{ScriptError};
ghost use Rattle.job_script.specs.Scripts.{IsScriptText, RefusesScript, ScriptMay, IsMemory};

/// A text is one script at most; where it is one, no refusal but out of memory holds for it, and else one refusal
/// at most.
pub fn scripts_are_read_in_one_way()
    ensures one { (a b : Script) (text : List ℕ) → IsScriptText a text → IsScriptText b text →
        a ≡ b }
    ensures read { (script : Script) (text : List ℕ) (error : ScriptError) →
        IsScriptText script text → RefusesScript text error → IsMemory error }
    ensures refused { (text : List ℕ) (error other : ScriptError) → RefusesScript text error →
        RefusesScript text other → IsMemory error ⊎ (IsMemory other ⊎ (error ≡ other)) }
{}

/// What a script's text asks for is within its limits and declared.
pub fn scripts_may_run()
    ensures { (script : Script) (text : List ℕ) → AreBytes text → IsScriptText script text →
        ScriptMay script }
{}
