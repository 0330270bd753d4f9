// Laws of words, without code.
ghost use Rattle.std.specs.Prelude.{List};
ghost use Rattle.clap.specs.Walk.{Text};
ghost use Rattle.kp_command.specs.Words.{ProveWords, SpellsProve, SpellsStdio, WritesProve, WritesStdio};

/// Words that are written as the manual says, no value beginning with a hyphen, spell their command.
pub fn written_words_spell_a_command()
    ensures stdio { (words : List Text) (definition main : Text) → WritesStdio words definition main → SpellsStdio words definition main }
    ensures prove { (words : List Text) (c : ProveWords) → WritesProve words c → SpellsProve words c }
{}
