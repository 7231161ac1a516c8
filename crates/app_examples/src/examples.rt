ghost use Rattle.app_examples.specs.EndExamples.{EpochExamples, HelloExamples, RecoverExamples};
ghost use Rattle.app_examples.specs.JobExamples.{AnswerExamples, GetExamples, LockExamples, TransactionExamples};

/// A first connection, and its Welcome.
pub fn hello_examples()
    ensures { HelloExamples }
{}

/// A connection that breaks, is tried again, and goes on or is lost.
pub fn recover_examples()
    ensures { RecoverExamples }
{}

/// A new epoch, what is put in it, and the end of its round.
pub fn epoch_examples()
    ensures { EpochExamples }
{}

/// Sets, gets, and what they wait for.
pub fn get_examples()
    ensures { GetExamples }
{}

/// A lock, its time to wait, and a Cancel that crosses the Grant.
pub fn lock_examples()
    ensures { LockExamples }
{}

/// Transactions, an unlock that is held back, and the refusals in their order.
pub fn transaction_examples()
    ensures { TransactionExamples }
{}

/// An increment and a sync, with their Answers.
pub fn answer_examples()
    ensures { AnswerExamples }
{}
