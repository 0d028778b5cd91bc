//! Whom a request asks, and whether the tenant's operator sends it.

ghost use Rattle.std.specs.Prelude.{◌≡◌, ◌<◌};
ghost use Rattle.std.specs.Str.{bytes_eq};
ghost use Rattle.service.specs.Answering.{operator_by, operator_token, tenants_of};
ghost use Rattle.service.specs.Served.{tenant_named};

use crate::office::Office;
use http_link::RequestKind;
use one_list::Run;

impl<J: Run> Office<J> {
    /// The number of the tenant of that name, if it takes requests of that kind where packets come.
    pub fn tenant_at(&self, kind: RequestKind, name: &[u8]) -> Option<usize>
        ensures { result ≡ tenants_of self.now kind name.now }
    {
        match kind {
            RequestKind::Admin if !self.admin => None,
            RequestKind::Ilp | RequestKind::Admin => self.tenant_named(name),
        }
    }

    /// Whether that is the token of the tenant's operator. Another one is counted.
    pub fn is_operator(&self, tenant: usize, shown: &[u8]) -> bool
        requires { tenant < self.now.books.tenants }
        ensures { result ≡ bytes_eq (operator_token self.now tenant) shown.now }
    {
        let is_operator = self.terms[tenant].admin.as_bytes() == shown;
        if !is_operator {
            self.refuse_token(tenant);
        }
        is_operator
    }

    /// The number of the tenant of that name, if that is the token of its operator. Nothing is counted.
    pub fn operator_of(&self, name: &[u8], shown: &[u8]) -> Option<usize>
        ensures { result ≡ operator_by self.now shown.now (tenant_named self.now.names.items name.now) }
    {
        let tenant = self.tenant_named(name)?;
        if self.terms[tenant].admin.as_bytes() == shown {
            Some(tenant)
        } else {
            None
        }
    }
}
