//! What the places where names stand do.
ghost use Rattle.std.specs.Prelude.{◌≡◌};
ghost use Rattle.scope_rules.specs.Roles as roles;

use scope_rules::Role;

pub(crate) fn assigns(role: Role) -> bool
    ensures { result ≡ roles.assigns role }
{
    matches!(role, Role::Value | Role::Import | Role::Definition)
}

pub(crate) fn binds(role: Role) -> bool
    ensures { result ≡ roles.binds role }
{
    matches!(
        role,
        Role::Parameter | Role::Value | Role::Import | Role::Definition
    )
}

pub(crate) fn is_parameter(role: Role) -> bool
    ensures { result ≡ roles.is_parameter role }
{
    matches!(role, Role::Parameter)
}

pub(crate) fn is_value(role: Role) -> bool
    ensures { result ≡ roles.is_value role }
{
    matches!(role, Role::Value)
}

pub(crate) fn is_import(role: Role) -> bool
    ensures { result ≡ roles.is_import role }
{
    matches!(role, Role::Import)
}

pub(crate) fn is_definition(role: Role) -> bool
    ensures { result ≡ roles.is_definition role }
{
    matches!(role, Role::Definition)
}

pub(crate) fn is_name(role: Role) -> bool
    ensures { result ≡ roles.is_name role }
{
    matches!(role, Role::Name)
}

pub(crate) fn is_super(role: Role) -> bool
    ensures { result ≡ roles.is_super role }
{
    matches!(role, Role::Super)
}

pub(crate) fn is_store(role: Role) -> bool
    ensures { result ≡ roles.is_store role }
{
    matches!(role, Role::Store)
}

pub(crate) fn is_plain_member(role: Role) -> bool
    ensures { result ≡ roles.is_plain_member role }
{
    matches!(role, Role::Value | Role::Annotation)
}

pub(crate) fn is_target(role: Role) -> bool
    ensures { result ≡ roles.is_target role }
{
    matches!(role, Role::Store | Role::Annotation)
}
