//! Names and the paths of the objects that they stand for.
ghost use Rattle.std.specs.Prelude.{◌≡◌, ℕ, Some, slice_get};
ghost use Rattle.elaborate_objects.specs.ModelTree.Tree.{Model};
ghost use Rattle.elaborate_objects.specs.FlatDesign.declared.objects.Object.{Object};
ghost use Rattle.elaborate_objects.specs.FlatDesign.declared.objects.Objects.{Objects};
ghost use Rattle.elaborate_objects.specs.FlatDesign.declared.design.Design.{Design};
ghost use Rattle.elaborate_objects.specs.FlatDesign.declared.design.InstancePart.{InstancePart};
ghost use Rattle.elaborate_objects.specs.FlatDesign.Denotes.{denoted_at};
ghost use Rattle.elaborate_objects.specs.ModelRules.Meanings.{Declared, declarations};
ghost use Rattle.elaborate_objects.specs.DesignRules.Forms.{Name, items_at};
ghost use Rattle.elaborate_objects.specs.DesignRules.Listing.{child};
ghost use Rattle.elaborate_objects.specs.DesignRules.Objects.{object_at, path_of, below};
ghost use Rattle.elaborate_objects.specs.DesignRules.Denoting.{below_top};
ghost use Rattle.elaborate_objects.specs.DesignRules.Designs.{IsDesignOf};
ghost use Rattle.elaborate_objects.specs.Parents.{AreInside};
ghost use Rattle.laws_design.specs.Named.{IsNamed};

/// Where each object is in an instance before it and the top instance is in itself, the object that a name stands for in an
/// instance has the path of the instance, a dot and the name (`path`). The objects of every model stand so (`inside`).
pub fn names_have_the_paths_of_their_instances()
    ensures path { (os : Objects) → AreInside os.list → (instance : ℕ) (name : Name) (o : Object)
        → object_at os (child (below_top os.list) instance name) ≡ Some o
        → path_of os (child (below_top os.list) instance name) ≡ below (path_of os instance) name }
    ensures inside { (model : Model) (design : Design) → IsDesignOf model design → AreInside design.objects.list }
{}

/// In the design of a model, what the name of this place of its module denotes in an instance is nothing, or the object with
/// the path of the instance, a dot and the name.
pub fn names_denote_the_objects_of_their_paths()
    ensures { (model : Model) (design : Design) → IsDesignOf model design
        → (home place : ℕ) (instance : InstancePart) (declared : Declared) → slice_get design.instances home ≡ Some instance
        → slice_get (declarations (items_at model.modules instance.module_place)) place ≡ Some declared
        → IsNamed design instance.object declared.name (denoted_at design home place) }
{}
