//! What holds of the descent.
ghost use Rattle.py_descent.specs.Laws.{IsComplete, IsSound};

/// Whatever statements the descent finds, the grammar has them.
pub fn descent_is_sound()
    ensures { IsSound }
{}

/// Whatever statements the grammar has up to the end, the descent finds them.
pub fn descent_is_complete()
    ensures { IsComplete }
{}
