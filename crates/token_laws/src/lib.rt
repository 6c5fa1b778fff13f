//! What equal tokens say: a call of one of these functions proves its law. Nothing is assumed of SHA-256.
#![tactic(auto)]

ghost use Rattle.token_laws.specs.CoveredLimits.{SoundIsWritable, StepsReplyWithin};
ghost use Rattle.token_laws.specs.EqualTokens.{EqualTokens};
ghost use Rattle.token_laws.specs.HashChains.{EqualHashChains};
ghost use Rattle.token_laws.specs.Runs.{EqualRuns};
ghost use Rattle.token_laws.specs.States.{StatesAreCovered};

/// Equal tokens cover the same: batch number, previous token, database and replies. Otherwise two different texts with the same
/// SHA-256 are exhibited.
pub fn equal_tokens()
    ensures { EqualTokens }
{}

/// If the newest tokens of two hash chains are equal, their tokens cover the same as far back as both go. Otherwise two such
/// texts are exhibited.
pub fn equal_hash_chains()
    ensures { EqualHashChains }
{}

/// Two runs with the same last token have equally many batches, and the same database, replies and token before the first and
/// after each one. Otherwise two such texts are exhibited.
pub fn equal_runs()
    ensures { EqualRuns }
{}

/// The token before any batch, and that after each one, cover the state and the batch's replies.
pub fn states_are_covered()
    ensures { StatesAreCovered }
{}

/// What a sound database has, and what a step on it replies, is within the limits.
pub fn within_limits()
    ensures databases { SoundIsWritable }
    ensures replies { StepsReplyWithin }
{}
