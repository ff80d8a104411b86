//! Many bases, among which mail addresses and hosts of URIs are found.

use names_hosts::{HostBase, HostIndex, MailBase, MailIndex, MailName, host_of_uri};
use std::alloc::Global;
use std::test::Fail;

/// Bases on hosts: more domains than are gone over one by one, and hosts, in no order.
const HOST_BASES: &str = "
www.example.com
.k07.example
.example.org
host.example.net
.k01.example
.a.k01.example
WWW.Example.Org
.k12.example
example.com
.k03.example
.k10.example
.k02.example
a.example
.k09.example
.k05.example
.k04.example
z.example
.k11.example
.k06.example
.k08.example
.K13.Example
localhost
.test
";

/// Whether the host of the URI is among those.
const URIS: &str = "
yes http://www.example.com/
yes http://WWW.EXAMPLE.COM:80/
yes http://example.com
no http://mail.example.com/
no http://a.www.example.com/
no http://wwwexample.com/
yes http://www.example.org/
yes http://mail.example.org/
no http://example.org/
no http://badexample.org/
yes http://host.example.net/
no http://example.net/
yes http://a.example/
no http://b.example/
no http://a.a.example/
yes ftp://x.k01.example/
yes ftp://x.a.k01.example/
no ftp://k01.example/
yes ftp://a.k01.example/
yes ftp://x.k13.example/
yes ftp://x.K02.EXAMPLE/
no ftp://x.k14.example/
yes ftp://x.y.z.k12.example/
no ftp://xk12.example/
no https://localhost.example/
yes https://any.test/
yes https://z.example/
";

/// Bases on mail addresses, in no order.
const MAIL_BASES: &str = "
root@example.com
admin@example.com
admin@example.net
b@b.example
a@b.example
b@a.example
.example.org
mail.example.net
Root@example.net
webmaster@localhost
example.edu
.k01.example
";

/// Whether the mail address is among those.
const MAIL: &str = "
yes root@example.com
yes root@EXAMPLE.com
no Root@example.com
no roo@example.com
no rootx@example.com
yes admin@example.com
yes admin@Example.NET
yes Root@example.net
no root@example.net
yes a@b.example
yes b@b.example
yes b@a.example
no a@a.example
no c@b.example
yes any@mail.example.org
no any@example.org
yes any@mail.example.net
no any@a.mail.example.net
yes any@Example.Edu
no any@mail.example.edu
yes webmaster@localhost
no postmaster@localhost
yes any@a.k01.example
no any@k01.example
";

/// Whether the base lies in one of those on hosts.
const HELD_HOSTS: &str = "
yes www.example.com
yes .www.example.org
no .www.example.com
yes .example.org
no example.org
no .org
yes .k01.example
yes .x.K01.Example
yes x.k01.example
no k01.example
no .k14.example
yes a.example
no .a.example
yes .test
no test
";

/// Whether the base lies in one of those on mail addresses.
const HELD_MAIL: &str = "
yes root@example.com
no Root@example.com
no example.com
yes root@mail.example.net
yes mail.example.net
no .mail.example.net
yes .www.example.org
yes any@www.example.org
no example.org
no b.example
no .b.example
no localhost
yes example.edu
yes .x.k01.example
";

fn hosts_of(alloc: Global) -> Result<Vec<HostBase<'static>>, Fail> {
    let mut bases = Vec::new(alloc);
    for line in HOST_BASES.lines().skip(1) {
        bases.push(HostBase::read(line.as_bytes()).ok_or("a base")?)?;
    }
    Ok(bases)
}

fn mail_of(alloc: Global) -> Result<Vec<MailBase<'static>>, Fail> {
    let mut bases = Vec::new(alloc);
    for line in MAIL_BASES.lines().skip(1) {
        bases.push(MailBase::read(line.as_bytes()).ok_or("a base")?)?;
    }
    Ok(bases)
}

fn uri_is_as_said(index: &HostIndex<'_>, row: &str) -> Result<bool, Fail> {
    let (said, uri) = row.split_once(' ').ok_or("an answer")?;
    let host = host_of_uri(uri.as_bytes()).ok_or("a host")?;
    Ok(index.covers(host) == (said == "yes"))
}

fn mail_is_as_said(index: &MailIndex<'_>, row: &str) -> Result<bool, Fail> {
    let (said, name) = row.split_once(' ').ok_or("an answer")?;
    let name = MailName::read(name.as_bytes()).ok_or("a mail address")?;
    Ok(index.covers(&name) == (said == "yes"))
}

fn hosts_are_held_as_said(index: &HostIndex<'_>, row: &str) -> Result<bool, Fail> {
    let (said, base) = row.split_once(' ').ok_or("an answer")?;
    let base = HostBase::read(base.as_bytes()).ok_or("a base")?;
    Ok(index.holds(&base) == (said == "yes"))
}

fn mail_is_held_as_said(index: &MailIndex<'_>, row: &str) -> Result<bool, Fail> {
    let (said, base) = row.split_once(' ').ok_or("an answer")?;
    let base = MailBase::read(base.as_bytes()).ok_or("a base")?;
    Ok(index.holds(&base) == (said == "yes"))
}

#[test]
fn hosts_are_found_among_many(rt: HostRuntime) -> Result<(), Fail> {
    let index = HostIndex::of(rt.alloc(), hosts_of(rt.alloc())?)?;
    assert!(rt; index.bases().len() == 23);
    for row in URIS.lines().skip(1) {
        assert!(rt; uri_is_as_said(&index, row)?, "{row}");
    }
    for row in HELD_HOSTS.lines().skip(1) {
        assert!(rt; hosts_are_held_as_said(&index, row)?, "{row}");
    }
    Ok(())
}

#[test]
fn mail_addresses_are_found_among_many(rt: HostRuntime) -> Result<(), Fail> {
    let index = MailIndex::of(rt.alloc(), mail_of(rt.alloc())?)?;
    assert!(rt; index.bases().len() == 12);
    for row in MAIL.lines().skip(1) {
        assert!(rt; mail_is_as_said(&index, row)?, "{row}");
    }
    for row in HELD_MAIL.lines().skip(1) {
        assert!(rt; mail_is_held_as_said(&index, row)?, "{row}");
    }
    Ok(())
}

#[test]
fn nothing_is_found_among_none(rt: HostRuntime) -> Result<(), Fail> {
    let hosts = HostIndex::of(rt.alloc(), Vec::new(rt.alloc()))?;
    let mail = MailIndex::of(rt.alloc(), Vec::new(rt.alloc()))?;
    let name = MailName::read(b"root@example.com").ok_or("a mail address")?;
    assert!(rt; !hosts.covers(name.host));
    assert!(rt; !mail.covers(&name));
    Ok(())
}
