//! The law of clouds that are served, for the proofs of callers. The call does nothing.

ghost use Rattle.std.specs.Prelude.{List};
ghost use Rattle.share_server.specs.CdEdges.Disk.{Cloud, reads};
ghost use Rattle.share_server.specs.UserDedup.command.Command.{Command};
ghost use Rattle.cloud_disk.specs.CloudAreas.Standing.{Chain};
ghost use Rattle.cloud_store.specs.declared.store.CloudStore.{CloudStore};
ghost use Rattle.cloud_store.specs.Store.{Serves};
ghost use Rattle.blob_audit.specs.AuditBase.Served.{ServedTables};
ghost use Rattle.blob_audit.specs.AuditBase.Whole.{WholeNow, tables_of};
ghost use Rattle.audit.specs.Serving.{views_of};

/// Whatever list an open store serves: its cloud is whole now.
pub fn law_of_served_clouds()
    ensures served { (list : List Command) (c : Chain) (store : CloudStore) (cloud : Cloud) → Serves list c store cloud
        → ServedTables store.header.shape (reads cloud.now) (tables_of store.memory)
        (views_of store.header.shape list) }
    ensures whole { (list : List Command) (c : Chain) (store : CloudStore) (cloud : Cloud) → Serves list c store cloud
        → WholeNow store.header.shape (reads cloud.now) (tables_of store.memory) }
{}
