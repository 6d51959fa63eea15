ghost use Rattle.std.specs.Prelude.{◌≡◌, ◌≤◌, ℕ, List};
ghost use Rattle.ficus_script.specs.declared.command.Command.{Command};
ghost use Rattle.ficus_script.specs.declared.volume_line.VolumeLine.{VolumeLine};
ghost use Rattle.ficus_script.specs.Script.{IsScript, IsFirstBadLine};
ghost use Rattle.ficus_script.specs.VolumeLine.{IsVolumeScript, IsFirstBadVolumeLine};

/// The law that no two lists of commands are one script's. It does nothing when it runs.
pub fn one_script()
    ensures { (bytes : List ℕ) (commands others : List Command) →
        IsScript bytes commands → IsScript bytes others → commands ≡ others }
{}

/// The law that bytes with a first bad line are the script of no commands. It does nothing when it runs.
pub fn no_bad_line()
    ensures { (bytes : List ℕ) (commands : List Command) (line : ℕ) →
        IsScript bytes commands → IsFirstBadLine bytes line → ⊥ }
{}

/// The law that bytes have one first bad line at most. It does nothing when it runs.
pub fn one_bad_line()
    ensures { (bytes : List ℕ) (line other : ℕ) →
        IsFirstBadLine bytes line → IsFirstBadLine bytes other → line ≡ other }
{}

/// The law that a script over several volumes has one list of lines at most, or one first bad line at most, and never
/// both. It does nothing when it runs.
pub fn one_volume_script()
    ensures lines { (volumes : ℕ) (bytes : List ℕ) (lines others : List VolumeLine) → volumes ≤ 255 →
        IsVolumeScript volumes bytes lines → IsVolumeScript volumes bytes others → lines ≡ others }
    ensures no_line { (volumes : ℕ) (bytes : List ℕ) (lines : List VolumeLine) (line : ℕ) →
        IsVolumeScript volumes bytes lines → IsFirstBadVolumeLine volumes bytes line → ⊥ }
    ensures bad_line { (volumes : ℕ) (bytes : List ℕ) (line other : ℕ) →
        IsFirstBadVolumeLine volumes bytes line → IsFirstBadVolumeLine volumes bytes other → line ≡ other }
{}
