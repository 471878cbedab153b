//! What holds of the code of every tree, and the code of a few.
ghost use Rattle.std.specs.Prelude.{◌≡◌, ◌+◌, ◌-◌, ◌<◌, ℕ, suc, Option, List, [], ◌∷◌, Some, None, true, false, if◌then◌else◌, length, map, slice_get};
ghost use Rattle.py_tree.specs.Tree.{FunDef, ClassDef, Handlers, StmtKind, Expr, node, name, literal, Stmts, no_stmts, stmt, statement, assign, for, if, break, continue, expr, no_exprs, arm, no_arms, try};
ghost use Rattle.py_tree.specs.declared.literal.Literal.TheVariants.{Int};
ghost use Rattle.stack_code.specs.Validity.{IsValid};
ghost use Rattle.stack_code.specs.declared.code.Code.{Code};
ghost use Rattle.stack_code.specs.declared.code.Range.{Range};
ghost use Rattle.stack_code.specs.declared.op.Op.TheVariants as op;
ghost use Rattle.stack_code.specs.declared.op.ConstKind.TheVariants as kind;
ghost use Rattle.tree_code.specs.Expressions.{value, put};
ghost use Rattle.tree_code.specs.Depths.{DepthsAt, value_depths, put_depths, kind_depths, body_depths, module_depths, fun_depths};
ghost use Rattle.tree_code.specs.Flows.{Flows, Nothing};
ghost use Rattle.tree_code.specs.Pieces.{Labels, instr, one, ◌⨾◌};
ghost use Rattle.tree_code.specs.Standing.{IsSolid, InstrsAt, Lies, guard_of};
ghost use Rattle.tree_code.specs.Statements.{Place, kind_code, body_code, handlers_code};
ghost use Rattle.scope_rules.specs.Tables.{locals_of, locals};
ghost use Rattle.tree_code.specs.Numbers.{AreNumbered, class_id_of};
ghost use Rattle.tree_code.specs.Programs.{Defined, functions, classes, id_of, no_loop, last_line, in_module, in_function, params_of, statements_of, line_of, params_code, module_code, fun_code};

/// The code of each tree is valid, and has a line for each instruction.
pub fn every_code_is_valid()
    ensures bodies { (error : ℕ) (body : Stmts) → IsValid (module_code error body) }
    ensures functions { (error : ℕ) (f : FunDef) → IsValid (fun_code error f) }
    ensures body_lines { (error : ℕ) (body : Stmts) → length (module_code error body).lines ≡ length (module_code error body).ops }
    ensures function_lines { (error : ℕ) (f : FunDef) → length (fun_code error f).lines ≡ length (fun_code error f).ops }
{}

/// Wherever it stands, the code of an expression ends one slot deeper than it begins, that of a target one slot less deep, and that of a statement as deep. At `continue` the depth is that of the body of the innermost loop, and at `break` the iterable of a `for` is gone.
pub fn pieces_keep_depths()
    ensures values { (again out : ℕ) (locals : List ℕ) (e : Expr) (depth : ℕ) → Flows Nothing again out depth (suc depth) (value_depths e depth) (value locals e) }
    ensures targets { (again out : ℕ) (locals : List ℕ) (e : Expr) (depth : ℕ) → Flows Nothing again out (suc depth) depth (put_depths e depth) (put locals e) }
    ensures statements { (at : Place) → (at.keeps ≡ true → 0 < at.depth) → (line : ℕ) (kind : StmtKind) →
        Flows Nothing at.depth (if at.keeps then at.depth - 1 else at.depth) at.depth at.depth (kind_depths at kind) (kind_code at line kind) }
    ensures bodies { (at : Place) → (at.keeps ≡ true → 0 < at.depth) → (body : Stmts) →
        Flows Nothing at.depth (if at.keeps then at.depth - 1 else at.depth) at.depth at.depth (body_depths at body) (body_code at body) }
{}

/// The code of each tree has as many instructions as its size says, wherever it stands, and the ranges in it lie in it and end before it does.
pub fn pieces_are_solid()
    ensures values { (locals : List ℕ) (e : Expr) → IsSolid (value locals e) }
    ensures targets { (locals : List ℕ) (e : Expr) → IsSolid (put locals e) }
    ensures statements { (at : Place) (line : ℕ) (kind : StmtKind) → IsSolid (kind_code at line kind) }
    ensures bodies { (at : Place) (body : Stmts) → IsSolid (body_code at body) }
    ensures clauses { (at : Place) (line : ℕ) (handlers : Handlers) → IsSolid (handlers_code at line handlers) }
{}

/// Each place in the body of a `try` that no `try` within it covers has the clauses of the `try` as its handler. Its `else` body and its clauses have the handler that is around it.
pub fn tries_guard_their_bodies()
    ensures body { (code : Code) (labels : Labels) (place : ℕ) (outer : Option Range) (at : Place) (line : ℕ) (body otherwise : Stmts) (handlers : Handlers) →
        Lies code labels place outer (kind_code at line (try body handlers otherwise)) → Lies code labels place (Some (guard_of place at.depth (body_code at body) (body_code at otherwise))) (body_code at body) }
    ensures else_body { (code : Code) (labels : Labels) (place : ℕ) (outer : Option Range) (at : Place) (line : ℕ) (body otherwise : Stmts) (handlers : Handlers) →
        Lies code labels place outer (kind_code at line (try body handlers otherwise)) → Lies code labels (place + (body_code at body).size) outer (body_code at otherwise) }
    ensures clauses { (code : Code) (labels : Labels) (place : ℕ) (outer : Option Range) (at : Place) (line : ℕ) (body otherwise : Stmts) (handlers : Handlers) →
        Lies code labels place outer (kind_code at line (try body handlers otherwise)) → Lies code labels (guard_of place at.depth (body_code at body) (body_code at otherwise)).goal outer (one op.Caught line ⨾ handlers_code at line handlers) }
{}

/// The body of a module stands at the first place of its code, and that of a function behind the function's parameters, with no handler around it. Behind a module's body stands `End`, and behind a function's the return of None.
pub fn bodies_stand_in_their_codes()
    ensures modules { (error : ℕ) (body : Stmts) → Lies (module_code error body) no_loop 0 None (body_code (in_module error) body) }
    ensures module_ends { (error : ℕ) (body : Stmts) → InstrsAt (module_code error body) (body_code (in_module error) body).size (instr op.End (last_line 1 body) ∷ []) }
    ensures params { (error : ℕ) (f : FunDef) → Lies (fun_code error f) no_loop 0 None (params_code (line_of f) 0 (params_of f)) }
    ensures functions { (error : ℕ) (f : FunDef) → Lies (fun_code error f) no_loop (length (params_of f)) None (body_code (in_function error f) (statements_of f)) }
    ensures function_ends { (error : ℕ) (f : FunDef) →
        InstrsAt (fun_code error f) (length (params_of f) + (body_code (in_function error f) (statements_of f)).size) (instr (op.Const kind.NoneValue) (line_of f) ∷ instr op.Return (line_of f) ∷ []) }
{}

/// Each place of a module's code, and of a function's, has the depth that is listed for the tree, where it has one.
pub fn places_have_listed_depths()
    ensures modules { (error : ℕ) (body : Stmts) → DepthsAt (module_code error body) 0 (module_depths error body) }
    ensures functions { (error : ℕ) (f : FunDef) → DepthsAt (fun_code error f) 0 (fun_depths error f) }
{}

/// Where functions and classes are numbered in the order of the text, the list of functions has each at its number, and that of classes too.
pub fn functions_stand_at_their_numbers()
    ensures functions { (body : Stmts) (number : ℕ) (d : Defined) → AreNumbered 0 0 body → slice_get (functions body) number ≡ Some d → id_of d.fun ≡ number }
    ensures classes { (body : Stmts) (number : ℕ) (c : ClassDef) → AreNumbered 0 0 body → slice_get (classes body) number ≡ Some c → class_id_of c ≡ number }
    ensures locals { (body : Stmts) → locals body ≡ map (λ d. locals_of d.fun) (functions body) }
{}

/// `x = 1` and `y = x` on two lines.
pub fn assignments()
    ensures { module_code 9 (stmt (statement (assign (expr (node (name 0) 1 1) no_exprs) (node (literal (Int false 1)) 1 0)) 1) (stmt (statement (assign (expr (node (name 1) 2 3) no_exprs) (node (name 0) 2 2)) 2) no_stmts)) ≡
        record {
          ops = op.Const kind.Int ∷ op.StoreName 0 ∷ op.LoadName 0 ∷ op.StoreName 1 ∷ op.End ∷ [];
          lines = 1 ∷ 1 ∷ 2 ∷ 2 ∷ 2 ∷ [];
          ranges = [];
          locals = 0;
          params = 0;
        } }
{}

/// `for x in y:`, in it `if x:` with `break`, and `continue`, each on its line.
pub fn loops()
    ensures { module_code 9 (stmt (statement (for (node (name 0) 1 0) (node (name 1) 1 1) (stmt (statement ((if) (arm (node (name 0) 2 2) (stmt (statement break 3) no_stmts) no_arms) no_stmts) 2) (stmt (statement continue 4) no_stmts))) 1) no_stmts) ≡
        record {
          ops = op.LoadName 1 ∷ op.ForNext 10 ∷ op.StoreName 0 ∷ op.LoadName 0 ∷ op.JumpIfFalse 8 ∷ op.Pop ∷ op.Jump 10 ∷ op.Jump 8 ∷ op.Jump 1 ∷ op.Jump 1 ∷ op.End ∷ [];
          lines = 1 ∷ 1 ∷ 1 ∷ 2 ∷ 2 ∷ 3 ∷ 3 ∷ 2 ∷ 4 ∷ 1 ∷ 1 ∷ [];
          ranges = [];
          locals = 0;
          params = 0;
        } }
{}
