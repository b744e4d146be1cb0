ghost use Rattle.log_merge.specs.Migration.{MigratingKeepsVerdicts};

/// What a check tells of a history stays when that is migrated to version 2.
pub fn law_migrated_verdict()
    ensures { MigratingKeepsVerdicts }
{}
